//! The words of nodes. Bits 0 and 1 tell the kind, and 3 is never stored. A plain word has its payload above
//! them. A reference has a seat in bits 2 to 9 and a number from bit 10 on: an install's to bit 63, an
//! exchange's to bit 37, with zeros above.
ghost use Rattle.std.specs.Prelude.{◌≡◌, ◌<◌, ◌^◌};
ghost use Rattle.pc_words.specs.declared.word.WordKind.TheVariants.{Plain, Install, Exchange};
ghost use Rattle.pc_words.specs.Words.{raw, kind, IsWord, IsStoredAs};

/// What a word of a node is.
#[derive(Clone, Copy, Debug, PartialEq, Eq)]
pub enum WordKind {
    /// A number below 2^62, which is the field's plain value.
    Plain(u64),
    /// A reference to an install of the pass at this seat, which has this number among its installs.
    Install {
        /// The seat, below 32. The bits have room up to 255.
        seat: u32,
        /// The install's number, below 2^54.
        number: u64,
    },
    /// A reference to an exchange of the pass at this seat, which has this number among its attempts.
    Exchange {
        /// The seat, below 32. The bits have room up to 255.
        seat: u32,
        /// The attempt's number, below 2^28.
        number: u64,
    },
}

/// The word of a plain value below 2^62.
#[inline]
pub fn plain(payload: u64) -> u64
    requires { payload < 2 ^ 62 }
    ensures raw { result ≡ raw (Plain payload) }
    ensures word { IsWord result }
    ensures kind { kind result ≡ Plain payload }
{
    4 * payload
}

/// The word that refers to an install: of a seat below 32, with a number below 2^54.
#[inline]
pub fn install_ref(seat: u32, number: u64) -> u64
    requires { (seat < 32) × (number < 2 ^ 54) }
    ensures raw { result ≡ raw (Install seat number) }
    ensures word { IsWord result }
    ensures kind { kind result ≡ Install seat number }
{
    1 + 4 * u64::from(seat) + 1024 * number
}

/// The word that refers to an exchange: of a seat below 32, with a number below 2^28.
#[inline]
pub fn exchange_ref(seat: u32, number: u64) -> u64
    requires { (seat < 32) × (number < 2 ^ 28) }
    ensures raw { result ≡ raw (Exchange seat number) }
    ensures word { IsWord result }
    ensures kind { kind result ≡ Exchange seat number }
{
    2 + 4 * u64::from(seat) + 1024 * number
}

/// What a stored word is. It is the one kind in range that is packed to this word.
#[inline]
pub fn kind_of(raw: u64) -> WordKind
    requires { IsWord raw }
    ensures kind { result ≡ kind raw }
    ensures stored { IsStoredAs result raw }
{
    let seat = (raw / 4 % 256) as u32;
    let number = raw / 1024;
    match raw % 4 {
        0 => WordKind::Plain(raw / 4),
        1 => WordKind::Install { seat, number },
        _ => WordKind::Exchange { seat, number },
    }
}
