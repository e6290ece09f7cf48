// The bytes of a line.
ghost use Rattle.std.specs.Prelude.{◌≡◌};
ghost use Rattle.text.specs.Bytes.{is_word_byte, is_allowed, all_of};

// Whether a byte stands in words.
#[tactic(auto, unfolding(crate::specs::Bytes::is_word_byte))]
pub fn is_word_byte(b: u8) -> bool
    ensures { result ≡ is_word_byte b }
{
    b.is_ascii_lowercase() || b.is_ascii_digit() || b == b'-'
}

// Whether a byte may stand in a line that is no comment.
#[tactic(auto, unfolding(crate::specs::Bytes::is_allowed))]
pub fn is_allowed(b: u8) -> bool
    ensures { result ≡ is_allowed b }
{
    is_word_byte(b) || b == b' ' || b == b'(' || b == b')'
}

// Whether every byte of a line may stand in a line that is no comment.
pub fn all_allowed(l: &[u8]) -> bool
    ensures { result ≡ all_of is_allowed l.now }
{
    l.iter().all(|b| is_allowed(*b))
}

// Whether every byte stands in words.
pub fn all_word_bytes(l: &[u8]) -> bool
    ensures { result ≡ all_of is_word_byte l.now }
{
    l.iter().all(|b| is_word_byte(*b))
}
