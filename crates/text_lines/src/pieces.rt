//! Texts cut at a byte.
ghost use Rattle.std.specs.Prelude.{◌≡◌, ◌<◌, ◌∷◌, ◌==◌, length, option_map, position, IfSome};
ghost use Rattle.text_lines.specs.Pieces.{pieces, pieces_after};

fn place_of(bytes: &[u8], at: u8) -> Option<usize>
    ensures { result ≡ position (λ b. b == at) bytes.now }
{
    bytes.iter().position(|b| *b == at)
}

/// The part before the first byte `at`, and what follows that byte where it stands.
pub fn cut(bytes: &[u8], at: u8) -> (&[u8], Option<&[u8]>)
    ensures parts { pieces at bytes.now ≡ result.0.now ∷ pieces_after at (option_map (λ r. r.now) result.1) }
    ensures shorter { IfSome result.1 (λ r. length r.now < length bytes.now) }
{
    match place_of(bytes, at) {
        None => (bytes, None),
        Some(place) => (&bytes[..place], Some(&bytes[place + 1..])),
    }
}
