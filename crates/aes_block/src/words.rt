//! A state in four words of 32 bits, one for each column, whose first byte is the highest.

ghost use Rattle.std.specs.Prelude.{◌≡◌, ◌<◌};
ghost use Rattle.aes_block.specs.Cipher.{add_round_key};
ghost use Rattle.aes_block.specs.CipherInside.{byte_of, state_of_words, words_at};

/// Returns the byte of a word in a row.
pub fn byte(word: u32, row: u32) -> u8
    requires { row < 4 }
    ensures { result ≡ byte_of word row }
{
    (word >> (24 - 8 * row) & 0xff) as u8
}

/// Makes a word of four bytes.
pub fn word(a: u8, b: u8, c: u8, d: u8) -> u32
    ensures first { byte_of result 0 ≡ a }
    ensures second { byte_of result 1 ≡ b }
    ensures third { byte_of result 2 ≡ c }
    ensures fourth { byte_of result 3 ≡ d }
{
    u32::from_be_bytes([a, b, c, d])
}

/// Makes the words of a block.
pub fn from_block(s: &[u8; 16]) -> [u32; 4]
    ensures { state_of_words result ≡ s.now }
{
    [
        word(s[0], s[1], s[2], s[3]),
        word(s[4], s[5], s[6], s[7]),
        word(s[8], s[9], s[10], s[11]),
        word(s[12], s[13], s[14], s[15]),
    ]
}

/// Makes the block of four words.
pub fn to_block(s: [u32; 4]) -> [u8; 16]
    ensures { result ≡ state_of_words s }
{
    let [a, b, c, d] = s;
    let [a0, a1, a2, a3] = a.to_be_bytes();
    let [b0, b1, b2, b3] = b.to_be_bytes();
    let [c0, c1, c2, c3] = c.to_be_bytes();
    let [d0, d1, d2, d3] = d.to_be_bytes();
    [
        a0, a1, a2, a3, b0, b1, b2, b3, c0, c1, c2, c3, d0, d1, d2, d3,
    ]
}

/// AddRoundKey (FIPS 197, 5.1.4).
/// The words of a round are apart, so that a state is four words and no wide register.
pub fn add_round_key(s: [u32; 4], keys: &[[u32; 11]; 4], round: usize) -> [u32; 4]
    requires { round < 11 }
    ensures { state_of_words result ≡
        add_round_key (state_of_words s) (state_of_words (words_at keys.now round)) }
{
    [
        s[0] ^ keys[0][round],
        s[1] ^ keys[1][round],
        s[2] ^ keys[2][round],
        s[3] ^ keys[3][round],
    ]
}
