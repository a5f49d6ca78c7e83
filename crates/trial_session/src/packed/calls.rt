// Calls with their replies, and lessons.
use crate::history::{Answer, Call, Exchange, Lesson, Reply, Unanswered};
use crate::packed::{name_and_numbers, parse_each};
use anyhow::{Context, bail, ensure};
use parts::Mark;
use search::Report;
use std::alloc::Global;

// The calls, parted by bars.
pub fn parse_calls(heap: Global, text: &str) -> anyhow::Result<Vec<Exchange>> {
    parse_each(heap, "call", text, |call| parse_exchange(heap, call))
}

// A call, and after `>` its reply.
fn parse_exchange(heap: Global, text: &str) -> anyhow::Result<Exchange> {
    let (call, reply) = text.split_once('>').context("no reply")?;
    let call = parse_call(call)?;
    let reply = parse_reply(heap, reply)?;
    Ok(Exchange { call, reply })
}

// A call: its name and two numbers.
fn parse_call(text: &str) -> anyhow::Result<Call> {
    let (name, first, second) = name_and_numbers(text)?;
    Ok(match name {
        "hold" => Call::Hold {
            part: first,
            code: second as u64,
        },
        "release" => Call::Release { part: first },
        "run" => Call::Run { budget: first },
        "settled" => Call::Settled { part: first },
        "code" => Call::Code {
            place: first,
            part: second,
        },
        "choice" => Call::Choice,
        "named" => Call::Named,
        _ => bail!("no call"),
    })
}

// A reply: a name, and the numbers that belong to it.
fn parse_reply(heap: Global, text: &str) -> anyhow::Result<Reply> {
    let mut words = text.split_whitespace();
    let name = words.next().context("an empty reply")?;
    let numbers: Vec<usize> = words
        .map(|word| -> anyhow::Result<usize> { Ok(word.parse::<usize>()?) })
        .try_collect(heap)?;
    Ok(match (name, numbers.as_slice()) {
        ("ok", []) => Ok(Answer::Done),
        ("empty", []) => Ok(Answer::Empty),
        ("row", codes) => Ok(Answer::Codes(codes_of(heap, codes)?)),
        ("refused", [number]) => Err(Unanswered::Refused(
            u8::try_from(*number).ok().context("no reply")?,
        )),
        (answer, [steps, turns]) => Ok(Answer::Ran(Report {
            answer: answer_by(answer)?,
            steps: *steps,
            turns: *turns,
        })),
        _ => bail!("no reply"),
    })
}

fn answer_by(name: &str) -> anyhow::Result<search::Answer> {
    Ok(match name {
        "fits" => search::Answer::Fits,
        "none" => search::Answer::NoneFits,
        "spent" => search::Answer::Spent,
        _ => bail!("no reply"),
    })
}

fn codes_of(heap: Global, numbers: &[usize]) -> anyhow::Result<Vec<u8>> {
    numbers
        .iter()
        .map(|number| -> anyhow::Result<u8> { Ok(u8::try_from(*number)?) })
        .try_collect(heap)
}

// The lessons by their places, parted by bars.
pub fn parse_lessons(heap: Global, parts: usize, text: &str) -> anyhow::Result<Vec<Lesson>> {
    parse_each(
        heap,
        "lesson",
        text,
        |lesson| parse_lesson(heap, parts, lesson),
    )
}

// A lesson: an empty place, or marks, told as the row that names them.
fn parse_lesson(heap: Global, parts: usize, text: &str) -> anyhow::Result<Lesson> {
    if text == "empty" {
        return Ok(None);
    }
    let mut row = vec![in heap; 0u8; parts]?;
    for word in text.split_whitespace() {
        let mark = Mark::from(word.parse::<i16>()?);
        let before = mark.part.checked_sub(1).context("a mark 0")?;
        let code = row.get_mut(before).context("a part above n")?;
        ensure!(*code == 0, "a part twice");
        *code = u8::from(mark.side);
    }
    Ok(Some(row))
}
