// How a command is answered: the rows that it showed, in the notation in which they are typed, or why it was refused.
use host::end::End;
use host::machine::Ran;
use printed::{formula_text, value_text};
use typed::reading::Answer;

// Values of one row of the sheet stand on one line, with a tab between them.
fn print_values(rt: &HostRuntime, ran: &Ran, wide: u16) -> anyhow::Result<()> {
    let wide = usize::from(wide).max(1);
    for (before, row) in ran.shown.iter().enumerate() {
        let text = value_text(rt.alloc(), row.as_slice())?;
        if before % wide == wide - 1 {
            println!(rt; "{text}")?;
        } else {
            print!(rt; "{text}\t")?;
        }
    }
    Ok(())
}

// A cell in which nothing is written shows no row.
fn print_formula(rt: &HostRuntime, ran: &Ran) -> anyhow::Result<()> {
    match ran.shown.first() {
        None => println!(rt; "nothing")?,
        Some(row) => {
            let text = formula_text(rt.alloc(), row.as_slice())?;
            println!(rt; "{text}")?
        }
    }
    Ok(())
}

pub fn answer(rt: &HostRuntime, ran: &Ran, kind: Answer) -> anyhow::Result<()> {
    match (ran.end, kind) {
        (End::Done, Answer::Done) => Ok(()),
        (End::Done, Answer::Values { wide }) => print_values(rt, ran, wide),
        (End::Done, Answer::Formula) => print_formula(rt, ran),
        (end, _) => Ok(println!(rt; "{end}")?),
    }
}
