//! Words of a line as they are written: each after a space.

ghost use Rattle.std.specs.Prelude.{◌≡◌, ℕ, ◌++◌, List, ◌∷◌, [], map, decimal, OnOk, OnErr};
ghost use Rattle.std.specs.Fmt.{signed_decimal};
ghost use Rattle.ct_lines.specs.Texts.{spaced, walk_words};

use ct_text::{push_natural, push_signed};
use std::alloc::AllocError;

/// Appends a space and the number. After an `Err` a part of it may stand at the end, here and in the calls below; what
/// stood before stays in front.
pub fn push_number(out: &mut Vec<u8>, number: u64) -> Result<(), AllocError>
    ensures ok { OnOk result (out.new.items ≡ out.old.items ++ spaced (decimal number ∷ [])) }
    ensures err { OnErr result ((front : List ℕ) × (out.new.items ≡ out.old.items ++ front)) }
{
    out.push(b' ')?;
    push_natural(out, number)
}

/// Appends each number after a space.
pub fn push_numbers(out: &mut Vec<u8>, numbers: &[u64]) -> Result<(), AllocError>
    ensures ok { OnOk result (out.new.items ≡ out.old.items ++ spaced (map decimal numbers.now)) }
    ensures err { OnErr result ((front : List ℕ) × (out.new.items ≡ out.old.items ++ front)) }
{
    for number in numbers {
        push_number(out, *number)?;
    }
    Ok(())
}

/// Appends each signed number after a space.
pub fn push_signeds(out: &mut Vec<u8>, numbers: &[i128]) -> Result<(), AllocError>
    ensures ok { OnOk result (out.new.items ≡ out.old.items ++ spaced (map signed_decimal numbers.now)) }
    ensures err { OnErr result ((front : List ℕ) × (out.new.items ≡ out.old.items ++ front)) }
{
    for number in numbers {
        push_one_signed(out, *number)?;
    }
    Ok(())
}

fn push_one_signed(out: &mut Vec<u8>, number: i128) -> Result<(), AllocError>
    ensures ok { OnOk result (out.new.items ≡ out.old.items ++ spaced (signed_decimal number ∷ [])) }
    ensures err { OnErr result ((front : List ℕ) × (out.new.items ≡ out.old.items ++ front)) }
{
    out.push(b' ')?;
    push_signed(out, number)
}

/// Appends the steps of a walk, each after a space, or ` -` where there is none.
pub fn push_walk(out: &mut Vec<u8>, steps: &[(u32, u64)]) -> Result<(), AllocError>
    ensures ok { OnOk result (out.new.items ≡ out.old.items ++ spaced (walk_words steps.now)) }
    ensures err { OnErr result ((front : List ℕ) × (out.new.items ≡ out.old.items ++ front)) }
{
    if steps.is_empty() {
        return out.extend_from_slice(b" -");
    }
    push_steps(out, steps)
}

ghost use Rattle.ct_lines.specs.Texts.{step_word};

fn push_steps(out: &mut Vec<u8>, steps: &[(u32, u64)]) -> Result<(), AllocError>
    ensures ok { OnOk result (out.new.items ≡ out.old.items ++ spaced (map step_word steps.now)) }
    ensures err { OnErr result ((front : List ℕ) × (out.new.items ≡ out.old.items ++ front)) }
{
    for step in steps {
        push_step(out, *step)?;
    }
    Ok(())
}

fn push_step(out: &mut Vec<u8>, step: (u32, u64)) -> Result<(), AllocError>
    ensures ok { OnOk result (out.new.items ≡ out.old.items ++ spaced (step_word step ∷ [])) }
    ensures err { OnErr result ((front : List ℕ) × (out.new.items ≡ out.old.items ++ front)) }
{
    push_number(out, u64::from(step.0))?;
    out.push(b'*')?;
    push_natural(out, step.1)
}
