// The calls: each reads its operands from the words after its name, and writes the line of its reply.
use crate::printing;
use crate::printing::{Listed, Shown};
use crate::reading::{byte, bytes, front, number, rest, situation, word};
use carmuspeno::CarmAnswer;
use std::io;

// The most bytes that an operand has, and the most that are lent.
const MOST: usize = 4300;

// An operator with one operand.
fn one<F: Fn(u8) -> CarmAnswer>(rt: &impl Print, operands: &[u8], operator: F) -> io::Result<()>
    requires { F.IsAlwaysCallable operator }
{
    printing::answer(rt, operator(byte(word(operands))))
}

// An operator, or the relation, with two operands.
fn two<F: Fn(u8, u8) -> CarmAnswer>(rt: &impl Print, operands: &[u8], operator: F) -> io::Result<()>
    requires { F.IsAlwaysCallable operator }
{
    let p = byte(word(operands));
    let q = byte(word(rest(operands)));
    printing::answer(rt, operator(p, q))
}

// The operator with three operands: the first is the answer that is replaced.
fn replace(rt: &impl Print, operands: &[u8]) -> io::Result<()> {
    let x = byte(word(operands));
    two(rt, rest(operands), |p, q| carmuspeno::carm_replace(x, p, q))
}

fn evaluate(rt: &impl Print, operands: &[u8]) -> io::Result<()> {
    let mut nodes = [0u8; MOST];
    let mut columns = [0u8; MOST];
    let nodes = bytes(word(operands), &mut nodes);
    let columns = bytes(word(rest(operands)), &mut columns);
    printing::answer(rt, carmuspeno::carm_evaluate(nodes, columns))
}

fn sum(lent: &[u8]) -> u64 {
    let mut h = 7u64;
    for &byte in lent {
        h = (h * 31 + u64::from(byte)) % 1000003;
    }
    h
}

fn compile(rt: &impl Print, operands: &[u8]) -> io::Result<()> {
    let mut table = [0u8; MOST];
    let mut nodes = [170u8; MOST];
    let table = bytes(word(operands), &mut table);
    let nodes = front(word(rest(operands)), &mut nodes);
    let reply = carmuspeno::carm_compile(table, nodes);
    println!(rt;
        "{} {} {} {} {} {} {}",
        reply.number,
        reply.place,
        reply.second,
        reply.columns,
        reply.rows,
        reply.nodes,
        sum(nodes)
    )
}

fn untable(rt: &impl Print, operands: &[u8]) -> io::Result<()> {
    let mut nodes = [0u8; MOST];
    let mut table = [170u8; MOST];
    let nodes = bytes(word(operands), &mut nodes);
    let after = rest(operands);
    let columns = number(word(after));
    let table = front(word(rest(after)), &mut table);
    let reply = carmuspeno::carm_untable(nodes, columns, table);
    println!(rt;
        "{} {} {} {} {}",
        reply.number,
        reply.place,
        reply.second,
        reply.length,
        sum(table)
    )
}

fn merge(rt: &impl Print, operands: &[u8]) -> io::Result<()> {
    let first = situation(operands);
    let second = situation(rest(rest(operands)));
    let reply = carmuspeno::carm_merge(first, second);
    let merged = Shown(reply.situation);
    println!(rt;
        "{} {} {} {}",
        reply.number, reply.place, reply.second, merged
    )
}

fn growth(rt: &impl Print, operands: &[u8]) -> io::Result<()> {
    let mut nodes = [0u8; MOST];
    let nodes = bytes(word(operands), &mut nodes);
    let columns = number(word(rest(operands)));
    let reply = carmuspeno::carm_check_growth(nodes, columns);
    let from = Shown(reply.situation);
    println!(rt;
        "{} {} {} {} {} {} {}",
        reply.number, reply.place, reply.second, reply.verdict, from, reply.column, reply.answer
    )
}

fn notice(rt: &impl Print, operands: &[u8]) -> io::Result<()> {
    let mut told = [0u8; MOST];
    let told = bytes(word(operands), &mut told);
    let reply = carmuspeno::carm_read_notice(told);
    println!(rt;
        "{} {} {} {}",
        reply.number, reply.place, reply.second, reply.facts
    )
}

fn speak(rt: &impl Print, operands: &[u8]) -> io::Result<()> {
    let mut told = [0u8; MOST];
    let mut voice = [0u8; MOST];
    let told = bytes(word(operands), &mut told);
    let voice = bytes(word(rest(operands)), &mut voice);
    printing::answer(rt, carmuspeno::carm_speak(told, voice))
}

fn speak_set(rt: &impl Print, operands: &[u8]) -> io::Result<()> {
    let mut told = [0u8; MOST];
    let mut voice = [0u8; MOST];
    let told = bytes(word(operands), &mut told);
    let voice = bytes(word(rest(operands)), &mut voice);
    let reply = carmuspeno::carm_speak_set(told, voice);
    println!(rt;
        "{} {} {} {} {}",
        reply.number, reply.place, reply.second, reply.set, reply.answer
    )
}

fn count_week(rt: &impl Print, operands: &[u8]) -> io::Result<()> {
    let mut batch = [0u8; MOST];
    let mut voice = [0u8; MOST];
    let batch = bytes(word(operands), &mut batch);
    let voice = bytes(word(rest(operands)), &mut voice);
    let reply = carmuspeno::carm_count_week(batch, voice);
    print!(rt; "{} {} {}", reply.number, reply.place, reply.second)?;
    print!(rt;
        " {} {} {} {} {}",
        reply.silent, reply.bury, reply.keep, reply.clash, reply.refused
    )?;
    println!(rt; "{}", Listed(reply.by_number))
}

// One line.
pub fn call(rt: &impl Print, line: &[u8]) -> io::Result<()> {
    let operands = rest(line);
    match word(line) {
        b"negate" => one(rt, operands, carmuspeno::carm_negate),
        b"turn" => one(rt, operands, carmuspeno::carm_turn),
        b"floor" => one(rt, operands, carmuspeno::carm_floor),
        b"ceiling" => one(rt, operands, carmuspeno::carm_ceiling),
        b"meet" => two(rt, operands, carmuspeno::carm_meet),
        b"join" => two(rt, operands, carmuspeno::carm_join),
        b"truth_meet" => two(rt, operands, carmuspeno::carm_truth_meet),
        b"truth_join" => two(rt, operands, carmuspeno::carm_truth_join),
        b"implication" => two(rt, operands, carmuspeno::carm_implication),
        b"guard" => two(rt, operands, carmuspeno::carm_guard),
        b"priority" => two(rt, operands, carmuspeno::carm_priority),
        b"contained" => two(rt, operands, carmuspeno::carm_contained),
        b"replace" => replace(rt, operands),
        b"compile" => compile(rt, operands),
        b"evaluate" => evaluate(rt, operands),
        b"merge" => merge(rt, operands),
        b"growth" => growth(rt, operands),
        b"untable" => untable(rt, operands),
        b"notice" => notice(rt, operands),
        b"speak" => speak(rt, operands),
        b"speak_set" => speak_set(rt, operands),
        b"count_week" => count_week(rt, operands),
        _ => println!(rt; "?"),
    }
}
