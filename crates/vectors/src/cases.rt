// The kinds of test cases, a function for each that reads the fields of a line.
use crate::answer::{Answer, Given, Refused};
use crate::coders::Named;
use crate::fault::Fault;
use crate::fields::Fields;
use crate::question::{Call, Question};
use coder::{Kind, Undecoded};
use installer::text::line;
use std::alloc::{AllocError, Global};
use std::array::try_from_fn;

// A question to a coder, and the answer that is said to come.
#[derive(Drop)]
struct Case {
    question: Question,
    said: Answer,
}

// The table of kinds. Gives the answer that was another than the line says, if there was one.
// Stays a match: a table would be these arms with function pointers, and `setting` has another type.
pub fn judge(kind: &str, fields: &mut Fields<'_>) -> Result<Option<String>, Fault> {
    match kind {
        "word" => coding(fields, word),
        "decode" => coding(fields, decode),
        "refuse" => coding(fields, refuse),
        "setting" => setting(fields),
        _ => Err(Fault::Malformed),
    }
}

// CODER K R
fn named(fields: &mut Fields<'_>) -> Result<Named, Fault> {
    let kind = fields.number::<u8>()?;
    Ok(Named {
        kind: Kind::try_from(kind).map_err(|_| Fault::Malformed)?,
        frame: fields.number()?,
        check: fields.number()?,
    })
}

fn text(heap: Global, answer: Answer) -> Result<String, AllocError> {
    match answer {
        Ok(given) => format!(in heap; "{given}"),
        Err(refused) => format!(in heap; "{refused}"),
    }
}

// CODER K R and what `read` reads
fn coding<F: FnOnce(Named, &mut Fields<'_>) -> Result<Vec<Case>, Fault>>(
    fields: &mut Fields<'_>,
    read: F,
) -> Result<Option<String>, Fault>
    requires { F.IsAlwaysCallable read }
{
    let coder = named(fields)?;
    let cases = read(coder, fields)?;
    fields.end()?;
    for case in cases {
        if let Some(other) = coder.other_answer(fields.heap, &case.question, &case.said)? {
            return Ok(Some(text(fields.heap, other)?));
        }
    }
    Ok(None)
}

// MESSAGE WORD
fn word(_coder: Named, fields: &mut Fields<'_>) -> Result<Vec<Case>, Fault> {
    let message = fields.octets()?;
    let octets = fields.octets()?;
    let question = Question {
        call: Call::Encode,
        octets: message,
        length: octets.len(),
    };
    let said = Ok(Given {
        repaired: None,
        octets,
    });
    Ok(vec![in fields.heap; Case { question, said }]?)
}

// repaired D MESSAGE, or lost
fn decoding(fields: &mut Fields<'_>) -> Result<Answer, Fault> {
    match fields.text()? {
        "repaired" => Ok(Ok(Given {
            repaired: Some(fields.number()?),
            octets: fields.octets()?,
        })),
        "lost" => Ok(Err(Refused::Number(Undecoded::Lost.number()))),
        _ => Err(Fault::Malformed),
    }
}

// RECEIVED and the decoding
fn decode(coder: Named, fields: &mut Fields<'_>) -> Result<Vec<Case>, Fault> {
    let question = Question {
        call: Call::Decode,
        octets: fields.octets()?,
        length: coder.frame,
    };
    let said = decoding(fields)?;
    Ok(vec![in fields.heap; Case { question, said }]?)
}

// MESSAGELEN WORDLEN NUMBER
fn refuse(_coder: Named, fields: &mut Fields<'_>) -> Result<Vec<Case>, Fault> {
    let message = fields.number()?;
    let word = fields.number()?;
    let number = fields.number()?;
    // Before the buffers, which may be large.
    fields.end()?;
    let refused = |call, octets, length| -> Result<Case, AllocError> {
        Ok(Case {
            question: Question {
                call,
                octets: vec![in fields.heap; 0; octets]?,
                length,
            },
            said: Err(Refused::Number(number)),
        })
    };
    Ok(vec![in fields.heap;
        refused(Call::Encode, message, word)?,
        refused(Call::Decode, word, message)?,
    ]?)
}

// CODER K R I M and the line that is printed
fn setting(fields: &mut Fields<'_>) -> Result<Option<String>, Fault> {
    let octets: [u8; 5] = try_from_fn(|_| fields.number())?;
    let said = fields.remainder()?;
    let printed = line(fields.heap, octets.as_slice())?;
    Ok((printed.as_str() != said).then_some(printed))
}
