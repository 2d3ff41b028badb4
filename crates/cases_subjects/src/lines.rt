//! Lines of what is handed in.

/// Where the first line ends.
fn line_end(bytes: &[u8]) -> usize {
    bytes
        .iter()
        .position(|b| *b == b'\n')
        .unwrap_or(bytes.len())
}

/// The first line, and what stands below it. A line that is no text is empty.
pub fn first_line(given: &[u8]) -> (&str, &[u8]) {
    let end = line_end(given).min(given.len());
    let (line, rest) = given.split_at(end);
    let below = match rest {
        [_, below @ ..] => below,
        [] => rest,
    };
    (std::str::from_utf8(line).unwrap_or(""), below)
}
