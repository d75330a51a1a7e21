//! Lists the tokens of a manuscript, one to a line, up to its end or its first fault.
#![tactic(auto)]

mod items;

use faults::Fault;
use items::{Item, Items};
use reader::tokens::Token;
use std::io;
use std::io::Read;

// The manuscript is at most this long.
const MOST: usize = 65_535;

// Why the list stops.
#[derive(Drop, Debug)]
enum Stop {
    Output(io::Error),
    Refused(Fault),
}

impl From<io::Error> for Stop {
    fn from(e: io::Error) -> Stop {
        Stop::Output(e)
    }
}

impl From<Fault> for Stop {
    fn from(e: Fault) -> Stop {
        Stop::Refused(e)
    }
}

fn print_items(rt: &HostRuntime, text: &[u8]) -> Result<(), Stop> {
    for item in Items::new(text) {
        let (place, item) = item?;
        println!(rt; "{place} {item}")?;
    }
    Ok(())
}

fn main(rt: HostRuntime) -> io::Result<()> {
    let mut text = Vec::new(rt.alloc());
    rt.stdin().read_to_end(&mut text)?;
    text.truncate(MOST);
    match print_items(&rt, text.as_slice()) {
        Ok(()) => println!(rt; "{}", Item::Token(Token::End)),
        Err(Stop::Refused(fault)) => println!(rt; "{fault}"),
        Err(Stop::Output(e)) => Err(e),
    }
}
