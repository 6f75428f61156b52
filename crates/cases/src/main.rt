// The cases of document 01 that have no star, and others worth having, played by the proved core. A program is run on one
// list, so that there are two.
#![tactic(auto)]

use std::io;

fn main(rt: HostRuntime) -> io::Result<()> {
    replay_run::list::replay(&mut rt.reader(), &mut io::writer(&rt))
}
