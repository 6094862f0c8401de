// The words of a line.
ghost use Rattle.std.specs.Prelude.{◌≡◌, [], ◌∷◌, not, MatchOption};
ghost use Rattle.std.specs.List.{position};
ghost use Rattle.calculator.specs.Words.{is_space, words};

/// The first word of a line, and what follows it; None where the line has no word.
pub(crate) fn next_word(line: &[u8]) -> Option<(&[u8], &[u8])>
    ensures { MatchOption result (words line.now ≡ [])
        (λ found. words line.now ≡ found.0.now ∷ words found.1.now) }
{
    let begun = &line[first_other(line)?..];
    let end = first_space(begun).unwrap_or(begun.len());
    Some((&begun[..end], &begun[end..]))
}

// The place of the first space.
fn first_space(line: &[u8]) -> Option<usize>
    ensures { result ≡ position is_space line.now }
{
    line.iter().position(|byte| *byte == b' ')
}

// The place of the first byte that is no space.
fn first_other(line: &[u8]) -> Option<usize>
    ensures { result ≡ position (λ byte. not (is_space byte)) line.now }
{
    line.iter().position(|byte| *byte != b' ')
}
