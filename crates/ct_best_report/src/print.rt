//! The lines of the text as they are written.
ghost use Rattle.std.specs.Prelude.{◌≡◌, ◌++◌, ◌∷◌, [], map, decimal, codes, OnOk};
ghost use Rattle.std.specs.Fmt.{signed_decimal};
ghost use Rattle.ct_lines.specs.Texts.{text_of};
ghost use Rattle.ct_best_report.specs.BestText.{solution_words, request_words, answer_lines, answers_lines};

use crate::reports::{BestAnswer, Solution};
use ct_lines::{push_number, push_numbers, push_signeds};
use ct_text::push_signed;
use std::alloc::AllocError;

// The first line of a request.
fn push_request(out: &mut Vec<u8>, number: u64, word: &[u8], n: u64) -> Result<(), AllocError>
    ensures { OnOk result (out.new.items ≡ out.old.items ++ text_of (request_words number word.now n ∷ [])) }
{
    out.extend_from_slice(b"request")?;
    push_number(out, number)?;
    out.extend_from_slice(b" ")?;
    out.extend_from_slice(word)?;
    push_number(out, n)?;
    out.extend_from_slice(b"\n")?;
    Ok(())
}

// A line of costs and numbers.
fn push_parts(
    out: &mut Vec<u8>,
    first: i128,
    others: &[i128],
    point: &[u64],
) -> Result<(), AllocError>
    ensures { OnOk result (out.new.items ≡ out.old.items ++ text_of ((signed_decimal first ∷ (map signed_decimal others.now ++ (codes "at" ∷ map decimal point.now))) ∷ [])) }
{
    push_signed(out, first)?;
    push_signeds(out, others)?;
    out.extend_from_slice(b" at")?;
    push_numbers(out, point)?;
    out.extend_from_slice(b"\n")?;
    Ok(())
}

fn push_solution(out: &mut Vec<u8>, solution: &Solution) -> Result<(), AllocError>
    ensures { OnOk result (out.new.items ≡ out.old.items ++ text_of (solution_words solution.now ∷ [])) }
{
    let costs = solution.costs.as_slice();
    push_parts(out, costs[0], &costs[1..], solution.point.as_slice())
}

fn push_solutions(out: &mut Vec<u8>, solutions: &[Solution]) -> Result<(), AllocError>
    ensures { OnOk result (out.new.items ≡ out.old.items ++ text_of (map solution_words solutions.now)) }
{
    for solution in solutions {
        push_solution(out, solution)?;
    }
    Ok(())
}

fn push_answer(out: &mut Vec<u8>, number: u64, answer: &BestAnswer) -> Result<(), AllocError>
    ensures { OnOk result (out.new.items ≡ out.old.items ++ text_of (answer_lines number answer.now)) }
{
    match answer {
        BestAnswer::Full { grade } => push_request(out, number, b"full", *grade),
        BestAnswer::Found { solutions } => {
            let found = solutions.as_slice();
            push_request(out, number, b"found", found.len() as u64)?;
            push_solutions(out, found)
        }
    }
}

// The answers, numbered from 1.
pub fn push_answers(out: &mut Vec<u8>, answers: &[BestAnswer]) -> Result<(), AllocError>
    ensures { OnOk result (out.new.items ≡ out.old.items ++ text_of (answers_lines 1 answers.now)) }
{
    for (i, answer) in answers.iter().enumerate() {
        push_answer(out, i as u64 + 1, answer)?;
    }
    Ok(())
}
