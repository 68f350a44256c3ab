//! Punctuators.
ghost use Rattle.std.specs.Prelude.{◌≡◌, codes, slice_index};
ghost use Rattle.ck_lexer.specs.Scanning as spec;

/// Whether `=` may follow this byte in a punctuator.
fn takes_equals(byte: u8) -> bool
    ensures { result ≡ spec.is_one_of (codes "<>=!*/%+-&^|") byte }
{
    matches!(
        byte,
        b'<' | b'>' | b'=' | b'!' | b'*' | b'/' | b'%' | b'+' | b'-' | b'&' | b'^' | b'|'
    )
}

/// Whether this byte may be doubled in a punctuator.
fn is_doubled(byte: u8) -> bool
    ensures { result ≡ spec.is_one_of (codes "+-<>&|") byte }
{
    matches!(byte, b'+' | b'-' | b'<' | b'>' | b'&' | b'|')
}

fn is_shift_assignment(first: u8, second: u8, third: u8) -> bool
    ensures { result ≡ spec.is_shift_assignment first second third }
{
    matches!(first, b'<' | b'>') && second == first && third == b'='
}

fn is_ellipsis(first: u8, second: u8, third: u8) -> bool
    ensures { result ≡ spec.is_ellipsis first second third }
{
    first == b'.' && second == b'.' && third == b'.'
}

fn is_pair(first: u8, second: u8) -> bool
    ensures { result ≡ spec.is_pair first second }
{
    (second == b'=' && takes_equals(first))
        || (second == first && is_doubled(first))
        || (first == b'-' && second == b'>')
}

fn is_single(byte: u8) -> bool
    ensures { result ≡ spec.is_single byte }
{
    matches!(
        byte,
        b'[' | b']'
            | b'('
            | b')'
            | b'{'
            | b'}'
            | b'.'
            | b'&'
            | b'*'
            | b'+'
            | b'-'
            | b'~'
            | b'!'
            | b'/'
            | b'%'
            | b'<'
            | b'>'
            | b'^'
            | b'|'
            | b'?'
            | b':'
            | b';'
            | b'='
            | b','
    )
}

/// The byte at an index, or 0 past the end, which is no byte of a punctuator.
fn byte_at(text: &[u8], index: usize) -> u8
    ensures { result ≡ slice_index text.now index }
{
    text.get(index).copied().unwrap_or(0)
}

/// How many bytes the longest punctuator that the text begins with takes; 0 where it begins with none.
pub(crate) fn punctuator_length(rest: &[u8]) -> usize
    ensures { result ≡ spec.punctuator_size rest.now }
{
    let (first, second, third) = (byte_at(rest, 0), byte_at(rest, 1), byte_at(rest, 2));
    if is_shift_assignment(first, second, third) || is_ellipsis(first, second, third) {
        3
    } else if is_pair(first, second) {
        2
    } else if is_single(first) {
        1
    } else {
        0
    }
}
