// Stored cases on standard input, parted by form feeds: a line with a question, and the text that it is asked of. Each is
// answered by a line, rules to drop by a line and those of the rules and of the cores, every core by a line and one for each core,
// and a join by the lines of the joined set.

#![tactic(auto)]

use all_cores::all_cores;
use feasibility::try_rules;
use joining::join;
use lines::number_from;
use lines::reader::Reader;
use relaxation::{Relaxed, relax};
use sensitivity::longest_execution;
use std::io;
use std::io::Read;
use subsets::SHORT;
use taskset::{MAX_RULES, Refusal, Rule, Task, TaskIndex, TaskSet};
use text::{Reading, RefusedAt, read};

const FORM_FEED: u8 = 12;

// The longest buffer for cores.
const ROOM: usize = 1_000;

// What a question gets.
enum Reply {
    Trial(bool),
    Longest(u64, Option<u64>),
    Drop(Relaxed),
    Cores(usize, [u16; ROOM]),
    Joined(TaskSet),
    NoQuestion,
}

// Whether some order keeps the rules with a 1 in these digits, at most one for each place from 0 on, and meets every deadline.
fn try_digits(set: &TaskSet, digits: &[u8]) -> Result<bool, Refusal> {
    let mut active = [false; MAX_RULES];
    for (mark, digit) in active.iter_mut().zip(digits) {
        *mark = *digit == b'1';
    }
    try_rules(set, &active)
}

// The number that stands alone behind this word.
fn number_after(question: &[u8], word: &[u8]) -> Option<u64> {
    let digits = question.strip_prefix(word)?;
    let number = number_from(digits, 0)?;
    (digits.len() <= number.end).then_some(number.value)
}

// The two places that stand alone behind this word, with a tab between them.
fn places_after(question: &[u8], word: &[u8]) -> Option<(TaskIndex, TaskIndex)> {
    let fields = question.strip_prefix(word)?;
    let one = number_from(fields, 0)?;
    let other = number_after(fields.get(one.end..)?, b"\t")?;
    Some((TaskIndex(one.value as usize), TaskIndex(other as usize)))
}

// The answer to a question. `trial` and digits ask for a trial, `longest` and a place how long the task there may run, `drop` and a
// budget for the cheapest rules to give up, `cores` and the length of a buffer for every core, `join` and two places for the set in
// which the tasks there are one.
fn answer(question: &[u8], reading: &Reading) -> Result<Reply, RefusedAt> {
    reading.answer?;
    if let Some(digits) = question.strip_prefix(b"trial\t") {
        return Ok(Reply::Trial(try_digits(&reading.set, digits)?));
    }
    if let Some(place) = number_after(question, b"longest\t") {
        let longest = longest_execution(&reading.set, TaskIndex(place as usize))?;
        return Ok(Reply::Longest(place, longest));
    }
    if let Some(budget) = number_after(question, b"drop\t") {
        return Ok(Reply::Drop(relax(&reading.set, budget)?));
    }
    if let Some(room) = number_after(question, b"cores\t") {
        let mut numbers = [0; ROOM];
        let room = (room as usize).min(ROOM);
        let count = all_cores(&reading.set, &mut numbers[..room])?;
        return Ok(Reply::Cores(count, numbers));
    }
    if let Some((one, other)) = places_after(question, b"join\t") {
        let joined = join(reading.set, one, other);
        joined.answer?;
        return Ok(Reply::Joined(joined.set));
    }
    Ok(Reply::NoQuestion)
}

// What can be given up: a line with the weight, the floor and the count, the dropped rules, and the cores with their rules.
fn print_relaxed(rt: &impl Print, rules: &[Rule; MAX_RULES], relaxed: &Relaxed) -> io::Result<()> {
    let Some(relaxation) = &relaxed.relaxation else {
        return println!(rt; "none\t{}", relaxed.count);
    };
    println!(rt;
        "drop\t{}\t{}\t{}",
        relaxation.weight, relaxation.floor, relaxed.count
    )?;
    for (k, rule) in rules.iter().enumerate() {
        if relaxation.dropped[k] {
            let weight = rule.weight;
            println!(rt; "rule\t{k}\t{}\t{}\t{weight}", rule.higher.0, rule.lower.0)?;
        }
    }
    for number in 1..=relaxation.ncores {
        let places = relaxation.cores.iter();
        let size = places.filter(|core| **core == number).count();
        println!(rt; "core\t{size}")?;
        for (k, rule) in rules.iter().enumerate() {
            if relaxation.cores[k] == number {
                println!(rt; "{k}\t{}\t{}", rule.higher.0, rule.lower.0)?;
            }
        }
    }
    Ok(())
}

// Every core: a line with the count, and for each its number and the places of its rules.
fn print_cores(rt: &impl Print, count: usize, numbers: &[u16; ROOM]) -> io::Result<()> {
    println!(rt; "cores\t{count}")?;
    for number in numbers.iter().take(count) {
        print!(rt; "{number}")?;
        for place in 0..SHORT {
            if number >> place & 1 == 1 {
                print!(rt; "\t{place}")?;
            }
        }
        println!(rt)?;
    }
    Ok(())
}

// The line of a task.
fn print_task(rt: &impl Print, task: &Task) -> io::Result<()> {
    print!(rt;
        "t\t{}\t{}\t{}\t{}",
        task.execution, task.period, task.deadline, task.jitter
    )?;
    for section in task.sections {
        print!(rt; "\t{section}")?;
    }
    println!(rt)
}

// A set as a text: the lines of its tasks and then of its rules.
fn print_set(rt: &impl Print, set: &TaskSet) -> io::Result<()> {
    for task in set.tasks.iter().take(set.ntasks) {
        print_task(rt, task)?;
    }
    for rule in set.rules.iter().take(set.nrules) {
        let weight = rule.weight;
        println!(rt; "r\t{}\t{}\t{weight}", rule.higher.0, rule.lower.0)?;
    }
    Ok(())
}

// Answers each case.
fn main(rt: HostRuntime) -> io::Result<()> {
    let mut cases = Vec::new(rt.alloc());
    rt.stdin().read_to_end(&mut cases)?;
    for case in cases.split(|byte| *byte == FORM_FEED) {
        let mut reader = Reader::stand(case, 0);
        let question = reader.next_line().unwrap_or(&[]);
        let reading = read(&case[reader.at..]);
        match answer(question, &reading) {
            Ok(Reply::Trial(true)) => println!(rt; "yes")?,
            Ok(Reply::Trial(false)) => println!(rt; "no")?,
            Ok(Reply::Longest(place, Some(longest))) => println!(rt;
                "longest\t{place}\t{longest}"
            )?,
            Ok(Reply::Longest(_, None)) => println!(rt; "none")?,
            Ok(Reply::Drop(relaxed)) => print_relaxed(&rt, &reading.set.rules, &relaxed)?,
            Ok(Reply::Cores(count, numbers)) => print_cores(&rt, count, &numbers)?,
            Ok(Reply::Joined(set)) => print_set(&rt, &set)?,
            Ok(Reply::NoQuestion) => println!(rt; "no question")?,
            Err(at) => println!(rt; "bad\t{}\t{}", at.line, u64::from(at.refusal))?,
        }
    }
    Ok(())
}
