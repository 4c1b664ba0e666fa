//! Kinds of bytes, and how far bytes of a kind go.
ghost use Rattle.std.specs.Prelude.{◌≡◌, ◌≤◌, length, false};
ghost use Rattle.aom_source_tokens.specs.Bytes.{is_blank, is_digit, is_letter, is_hexadecimal, is_number_byte, is_name_byte, begins_comment, gap_length};
ghost use Rattle.aom_source_tokens.specs.Tokens.{length_of};

pub fn is_blank(byte: u8) -> bool
    ensures { result ≡ is_blank byte }
{
    matches!(byte, b' ' | b'\t' | b'\r' | b'\n')
}

pub fn is_digit(byte: u8) -> bool
    ensures { result ≡ is_digit byte }
{
    matches!(byte, b'0'..=b'9')
}

pub fn is_letter(byte: u8) -> bool
    ensures { result ≡ is_letter byte }
{
    matches!(byte, b'a'..=b'z' | b'A'..=b'Z')
}

pub fn is_hexadecimal(byte: u8) -> bool
    ensures { result ≡ is_hexadecimal byte }
{
    matches!(byte, b'0'..=b'9' | b'a'..=b'f' | b'A'..=b'F')
}

/// A byte of a number behind its first.
pub fn is_number_byte(byte: u8) -> bool
    ensures { result ≡ is_number_byte byte }
{
    is_digit(byte) || byte == b'_'
}

/// A byte of a name behind its first.
pub fn is_name_byte(byte: u8) -> bool
    ensures { result ≡ is_name_byte byte }
{
    is_letter(byte) || is_digit(byte) || byte == b'_'
}

/// How many bytes come before the first that is none of a name.
pub fn name_length(bytes: &[u8]) -> usize
    ensures count { result ≡ length_of is_name_byte bytes.now }
    ensures within { result ≤ length bytes.now }
{
    let mut count = 0;
    while count < bytes.len() && is_name_byte(bytes[count]) {
        count += 1;
    }
    count
}

/// How many bytes come before the first that is none of a number.
pub fn number_length(bytes: &[u8]) -> usize
    ensures count { result ≡ length_of is_number_byte bytes.now }
    ensures within { result ≤ length bytes.now }
{
    let mut count = 0;
    while count < bytes.len() && is_number_byte(bytes[count]) {
        count += 1;
    }
    count
}

/// How many bytes come before the first that is no hexadecimal digit.
pub fn hexadecimal_length(bytes: &[u8]) -> usize
    ensures count { result ≡ length_of is_hexadecimal bytes.now }
    ensures within { result ≤ length bytes.now }
{
    let mut count = 0;
    while count < bytes.len() && is_hexadecimal(bytes[count]) {
        count += 1;
    }
    count
}

/// How many bytes of blanks and comments come first.
pub fn gap_length(bytes: &[u8]) -> usize
    ensures count { result ≡ gap_length false bytes.now }
    ensures within { result ≤ length bytes.now }
{
    let mut count = 0;
    let mut is_comment = false;
    while count < bytes.len() {
        let byte = bytes[count];
        if is_comment {
            is_comment = byte != b'\n';
        } else if begins_comment(&bytes[count..]) {
            is_comment = true;
        } else if !is_blank(byte) {
            return count;
        }
        count += 1;
    }
    count
}

fn begins_comment(bytes: &[u8]) -> bool
    ensures { result ≡ begins_comment bytes.now }
{
    bytes.len() >= 2 && bytes[0] == b'/' && bytes[1] == b'/'
}
