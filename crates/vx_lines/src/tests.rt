mod answering;
mod failing;
mod lines;
mod outside;
