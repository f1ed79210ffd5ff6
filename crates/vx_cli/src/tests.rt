mod batch;
mod words;

use std::alloc::{AllocError, Global};

// The words of a line, with a semicolon between each two. The empty line has none.
fn words_of(alloc: Global, line: &str) -> Result<Vec<String>, AllocError> {
    let mut words = Vec::new(alloc);
    if line.is_empty() {
        return Ok(words);
    }
    for word in line.split(';') {
        words.push(String::from_str(alloc, word)?)?;
    }
    Ok(words)
}
