// Judges the table on standard input and prints the verdict: the first 1,024 bytes count. A read that fails is judged as
// nothing, and told on standard error, and so is a verdict that cannot be written.

#![tactic(auto)]

// Tells one line on standard error. Where that fails too, nobody is left to be told.
fn say(rt: &impl Eprint, line: &str) {
    let _ = eprintln!(rt; "tablecheck: {line}");
}

fn main(rt: HostRuntime) {
    let mut bytes = [0u8; 1024];
    let read = input::read_input(&rt, &mut bytes);
    if read.failed.is_some() {
        return say(&rt, "standard input could not be read");
    }
    let mut text = [0u8; 256];
    let length = judging::judge(&bytes[..read.count], &mut text);
    if rt.write_all(&text[..length]).is_err() {
        say(&rt, "the verdict could not be written");
    }
}
