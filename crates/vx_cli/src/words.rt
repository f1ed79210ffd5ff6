ghost use Rattle.std.specs.Prelude.{◌≡◌, ◌-◌, ◌^◌, min};
ghost use Rattle.vx_batch.specs.Fields.{joined_length, texts};

/// How long the line of these words is, up to 2^64-2. It takes no memory.
pub fn joined_length(words: &[String]) -> usize
    ensures { result ≡ min (joined_length (texts words.now)) (2 ^ 64 - 2) }
{
    let mut total: usize = 0;
    for word in words {
        total = total.saturating_add(word.len()).saturating_add(1);
    }
    total.saturating_sub(1)
}
