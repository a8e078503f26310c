ghost use Rattle.std.specs.Prelude.{◌≡◌, ◌++◌, decimal, OnOk, OnErr};

use std::alloc::AllocError;

/// Writes a number at the end of a text, in ASCII digits with no leading zero; 0 is `0`.
///
/// It fails only for want of memory, and the text is then as it was.
pub fn push_decimal(out: &mut Vec<u8>, n: u64) -> Result<(), AllocError>
    ensures ok { OnOk result (out.new.items ≡ out.old.items ++ decimal n) }
    ensures err { OnErr result (out.new.items ≡ out.old.items) }
{
    let mut digits = [0u8; 20];
    let mut at: usize = 20;
    let mut rest = n;
    while rest >= 10 {
        at -= 1;
        digits[at] = (rest % 10) as u8 + 48;
        rest /= 10;
    }
    at -= 1;
    digits[at] = rest as u8 + 48;
    out.extend_from_slice(&digits[at..])
}

#[cfg(test)]
mod tests {
    use super::*;
    use std::test::Fail;

    #[test]
    fn writes_digits(rt: HostRuntime) -> Result<(), Fail> {
        let most = 18_446_744_073_709_551_615;
        for (n, want) in [
            (0, "0"),
            (9, "9"),
            (10, "10"),
            (100_000, "100000"),
            (most, "18446744073709551615"),
        ] {
            let mut out = Vec::new(rt.alloc());
            push_decimal(&mut out, n)?;
            assert_eq!(rt; out.as_slice(), want.as_bytes(), "at {n}");
        }
        Ok(())
    }
}
