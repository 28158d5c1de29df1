//! Tests that lines written to an output follow the earlier ones.

use initview_lines::{Line, LineSink, SinkFault, Zone, text_line, words_of};
use jiff::Error;
use std::alloc::{AllocError, Global};
use std::test::Fail;

/// An output that keeps its lines.
#[derive(Drop)]
struct Kept {
    lines: Vec<Line>,
    is_local: bool,
}

impl LineSink for Kept {
    ghost use Rattle.std.specs.Prelude.{Some, false};

    ghost said = { λ kept.
        record { lines = Some kept.lines.items; unread = false; local = kept.is_local } };

    #[tactic(auto, using(initview_lines::proofs::SayingLemmas::front_none))]
    fn say(&mut self, _alloc: Global, mut lines: Vec<Line>) -> Result<(), SinkFault> {
        match self.lines.append(&mut lines) {
            Ok(()) => Ok(()),
            Err(_) => Err(SinkFault::Memory),
        }
    }

    #[tactic(auto, using(initview_lines::proofs::SayingLemmas::says_nothing))]
    fn is_unread(&mut self) -> bool {
        false
    }

    fn use_local_times(&mut self) -> Result<(), Error> {
        self.is_local = true;
        Ok(())
    }
}

fn say(alloc: Global, kept: &mut Kept, text: &str) -> Result<bool, AllocError> {
    let line = text_line(alloc, text.as_bytes().to_vec(alloc)?)?;
    Ok(kept.say(alloc, line).is_ok())
}

#[test]
fn lines_are_kept_in_their_order(rt: HostRuntime) -> Result<(), Fail> {
    let alloc = rt.alloc();
    let mut kept = Kept {
        lines: Vec::new(alloc),
        is_local: false,
    };
    assert!(rt; say(alloc, &mut kept, "first\n")? && say(alloc, &mut kept, "second\n")?);
    let words = words_of(alloc, Zone::Utc, &kept.lines)?;
    assert_eq!(rt; words.as_slice(), b"first\nsecond\n".as_slice());
    Ok(())
}
