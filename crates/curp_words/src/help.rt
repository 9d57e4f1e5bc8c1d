//! The page for people who ask what the program can do.
ghost use Rattle.std.specs.Prelude.{◌≡◌};
ghost use Rattle.std.specs.Fmt.{WritesOnOk};
ghost use Rattle.clap.specs.Walk.{texts};
ghost use Rattle.curp_words.specs.Help.{asks_for_help, help_text};

use std::fmt;

/// What each word does, with its options, their ranges, and what they are where they aren't given.
const PAGE: &str = "\
curp plays, makes and checks runs of a store that keeps completed updates through crashes (CURP, with RIFL).\n\
\n\
\x20 curp play [--history]    reads a script, and prints what each step does, and an order of the requests\n\
\x20 curp make [options]      prints a made script, for play\n\
\x20 curp live [options]      runs nodes on threads; prints the script of what they did, and what play prints for it\n\
\x20 curp check               reads a history and an order; prints yes where the order is one of the history, else no\n\
\x20 curp resp [options]      reads requests of Redis' protocol, and prints the replies of a cluster\n\
\x20 curp manage              reads orders for a manager whose journal is kept, and prints what it does\n\
\n\
All read standard input and print to standard output; make and live read nothing.\n\
\n\
\x20 play      --history      prints what clients saw, and the order, for check\n\
\x20 make      --number N     all that is random follows from it, 0 to 18446744073709551615 (1)\n\
\x20 make      --steps N      steps, 1 to 200000 (4000)\n\
\x20 make      --clients N    clients, 1 to 64 (8)\n\
\x20 make      --recoveries N recoveries of a partition, 0 to 64 (3)\n\
\x20 make      --summary      prints six counts in place of the script\n\
\x20 live      --number N     the commands follow from it, 0 to 18446744073709551615 (1)\n\
\x20 live      --commands N   commands of each client, 1 to 100 (50)\n\
\x20 live      --clients N    clients, 1 to 16 (8)\n\
\x20 live      --recoveries N recoveries of a partition, 0 to 8 (3)\n\
\x20 make live --f N          backups, and witnesses, of a partition, 1 to 5 (3)\n\
\x20 make live --sets N       sets of a witness, 1 to 1024 (64)\n\
\x20 make live --ways N       slots of a set, 1 to 16 (4)\n\
\x20 make live --parts N      partitions, 1 to 16 (2)\n\
\x20 make live --protocol N   1, or 2 for reads in one round trip (1)\n\
\x20 resp      --f N          backups, and witnesses, 1 to 5 (3)\n\
\x20 resp      --every N      commands between two recoveries, 0 to 1000000, where 0 is never (0)\n\
\x20 resp      --script       prints the script of the steps that serve them in place of the replies\n\
\n\
What an option is where it isn't given stands in brackets. An example:\n\
\n\
\x20 curp make --clients 2 --steps 500 | curp play\n\
";

/// Whether there are no words, or only one that asks for help.
pub(crate) fn asks_for_help(words: &[&str]) -> bool
    ensures { result ≡ asks_for_help (texts words.now) }
{
    match words {
        [] => true,
        [word] => *word == "help" || *word == "-h" || *word == "--help",
        _ => false,
    }
}

/// Writes the page.
#[tactic(auto, unfolding(crate::specs::Help::help_text))]
pub(crate) fn write_page<W: fmt::Write>(f: &mut fmt::Formatter<W>) -> fmt::Result
    ensures { WritesOnOk W.write_str_gives f.old result help_text f.new }
{
    f.write_str(PAGE)
}
