//! The number behind the word `gen`.
ghost use Rattle.std.specs.Prelude.{◌≡◌, ◌≤◌, ◌↔◌, ◌++◌, ◌∷◌, [], ℕ, None, IfSome, IsTrue, codes, map, string_bytes};
ghost use Rattle.std.specs.Fmt.{decimal};
ghost use Rattle.swp_tool.specs.Generated.{IsGen};

/// The number of a generated run, where the words ask for one.
pub fn number_given(words: &[String]) -> Option<u32>
    ensures given { IfSome result (λ n. IsGen n (map string_bytes words.now)) }
    ensures only { IfSome result (λ n. (m : ℕ) → IsGen m (map string_bytes words.now) → n ≡ m) }
    ensures none { result ≡ None → (n : ℕ) → IsGen n (map string_bytes words.now) → ⊥ }
{
    match words {
        [word, number] => {
            if is_gen(word.as_bytes()) {
                match number_of(number.as_str()) {
                    Some(n) => Some(n),
                    None => None,
                }
            } else {
                None
            }
        }
        _ => None,
    }
}

/// Whether a word is `gen`.
fn is_gen(word: &[u8]) -> bool
    ensures { IsTrue result ↔ (word.now ≡ codes "gen") }
{
    word == b"gen".as_slice()
}

/// The number that a word is: decimal digits without sign or leading zero, from 0 to 4,294,967,295.
fn number_of(word: &str) -> Option<u32>
    ensures is { IfSome result (λ n. word.now ≡ decimal n) }
    ensures none { result ≡ None → (n : ℕ) → n ≤ 4294967295 → word.now ≡ decimal n → ⊥ }
{
    let Ok(n) = word.parse::<u32>() else {
        return None;
    };
    if is_decimal(n, word.as_bytes()) {
        Some(n)
    } else {
        None
    }
}

/// Whether these are the digits of a number, as it is written.
fn is_decimal(n: u32, digits: &[u8]) -> bool
    ensures { IsTrue result ↔ (digits.now ≡ decimal n) }
{
    let Some((last, front)) = parted(digits) else {
        return false;
    };
    if u32::from(*last) != 48 + n % 10 {
        return false;
    }
    if n < 10 {
        front.is_empty()
    } else {
        is_decimal(n / 10, front)
    }
}

/// The last byte and those before it.
fn parted(bytes: &[u8]) -> Option<(&u8, &[u8])>
    ensures none { result ≡ None → bytes.now ≡ [] }
    ensures some { IfSome result (λ p. bytes.now ≡ p.1.now ++ p.0.now ∷ []) }
{
    bytes.split_last()
}
