// The fixed list of host/fixed, replayed by the proved core. The program `cases` is the same on another list.
#![tactic(auto)]

use std::io;

fn main(rt: HostRuntime) -> io::Result<()> {
    replay_run::list::replay(&mut rt.reader(), &mut io::writer(&rt))
}
