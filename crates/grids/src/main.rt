// Prints the grids of the operators from the proved functions: for an operator of two operands a row for each p
// and in it the answer at each q, for an operator of one operand one row. Answers stand as their numbers.

#![tactic(auto)]

use answers::{Answer, operators};
use std::fmt::Display;
use std::io;

const ANSWERS: [Answer; 4] = [Answer::Silent, Answer::Bury, Answer::Keep, Answer::Clash];

fn print_row<F: Fn(Answer) -> Answer>(rt: &impl Print, operator: F) -> io::Result<()>
    requires { F.IsAlwaysCallable operator }
{
    let silent = u8::from(operator(Answer::Silent));
    let bury = u8::from(operator(Answer::Bury));
    let keep = u8::from(operator(Answer::Keep));
    let clash = u8::from(operator(Answer::Clash));
    println!(rt; "{silent} {bury} {keep} {clash}")
}

fn print_one<F: Fn(Answer) -> Answer>(rt: &impl Print, name: &str, operator: F) -> io::Result<()>
    requires { F.IsAlwaysCallable operator }
{
    println!(rt; "{name}")?;
    print_row(rt, operator)
}

fn print_two<F: Fn(Answer, Answer) -> Answer>(
    rt: &impl Print,
    name: impl Display + Drop,
    operator: F,
) -> io::Result<()>
    requires { F.IsAlwaysCallable operator }
{
    rt.println(name)?;
    for p in ANSWERS {
        print_row(rt, |q| operator(p, q))?;
    }
    Ok(())
}

fn main(rt: HostRuntime) -> io::Result<()> {
    print_one(&rt, "negate", operators::negate)?;
    print_one(&rt, "turn", operators::turn)?;
    print_one(&rt, "floor", operators::floor)?;
    print_one(&rt, "ceiling", operators::ceiling)?;
    print_two(&rt, "meet", operators::meet)?;
    print_two(&rt, "join", operators::join)?;
    print_two(&rt, "truth meet", operators::truth_meet)?;
    print_two(&rt, "truth join", operators::truth_join)?;
    print_two(&rt, "implication", operators::implication)?;
    print_two(&rt, "guard", operators::guard)?;
    print_two(&rt, "priority", operators::priority)?;
    for x in ANSWERS {
        let number = u8::from(x);
        print_two(
            &rt,
            format_args!("replace {number}"),
            |p, q| operators::replace(x, p, q),
        )?;
    }
    Ok(())
}
