use crate::AttemptList;
use crate::begun::Begun;
use can_frame::Frame;
use gw_base::Memory;
use std::alloc::Global;
use tp_unit::{Unit, read_unit};

/// The attempts of the frames that came.
#[derive(Drop)]
pub(crate) struct Cutting {
    /// All of them but the last one.
    done: AttemptList,
    /// The last one, where one has begun.
    last: Option<Begun>,
}

impl Cutting {
    ghost use Rattle.std.specs.Prelude.{◌≡◌, ◌≤◌, ◌++◌, ◌∷◌, [], ℕ, Bool, List, true, map, IfOk, OnOk, length};
    ghost use Rattle.tp_unit.specs.Unit.{Meaning};
    ghost use Rattle.tp_attempts.specs.Attempts.{attempts_in, told};
    ghost use Rattle.tp_attempts.specs.Following.{IsCut, Keeps};
    ghost use Rattle.tp_attempts.specs.Seen.{Seen, seen_frame, is_start, len_of, bytes_of};
    ghost use Rattle.tp_attempts.specs.Walk.{begun};

    /// No frame came yet.
    pub(crate) fn new(alloc: Global) -> Cutting
        ensures done { result.done ≡ [] }
        ensures last { result.last ≡ None }
    {
        Cutting {
            done: AttemptList::new(alloc),
            last: None,
        }
    }

    /// Begins an attempt, which ends the one before.
    fn begin(&mut self, next: Begun) -> Result<(), Memory>
        ensures { OnOk result ((a : ℕ) (functional : Bool) (seen : List Seen) (frame : Seen) → is_start functional frame.meaning ≡ true → Keeps next frame.at (begun frame) → IsCut a functional self.old.done self.old.last seen → IsCut a functional self.new.done self.new.last (seen ++ frame ∷ [])) }
    {
        let Some(before) = self.last.replace(next) else {
            return Ok(());
        };
        self.done.push(before.into_attempt())?;
        Ok(())
    }

    /// Looks at the frame in this place.
    pub(crate) fn add(
        &mut self,
        alloc: Global,
        a: u8,
        functional: bool,
        place: u32,
        frame: &Frame,
    ) -> Result<(), Memory>
        requires { a ≤ 1 }
        ensures { OnOk result ((seen : List Seen) → IsCut a functional self.old.done self.old.last seen → IsCut a functional self.new.done self.new.last (seen ++ seen_frame a place frame.now ∷ [])) }
    {
        let size = frame.bytes().len();
        match read_unit(a, frame) {
            Unit::Sf { bytes } => {
                let next = Begun::new(alloc, place, size, bytes.len() as u32, bytes.as_slice())?;
                self.begin(next)
            }
            Unit::Ff { len, bytes } => {
                if functional {
                    return Ok(());
                }
                let next = Begun::new(alloc, place, size, len, bytes.as_slice())?;
                self.begin(next)
            }
            Unit::Cf { sn, bytes } => {
                let Some(last) = &mut self.last else {
                    return Ok(());
                };
                last.look(a, place, size, sn, bytes.as_slice())?;
                Ok(())
            }
            Unit::Fc {
                fs: _,
                bs: _,
                st: _,
            } => Ok(()),
            Unit::Ignored(_) => Ok(()),
        }
    }

    /// The attempts, when no more frames come.
    pub(crate) fn finish(self) -> Result<AttemptList, Memory>
        ensures { IfOk result (λ list. (a : ℕ) (functional : Bool) (seen : List Seen) → IsCut a functional self.done self.last seen → list ≡ map (told a) (attempts_in functional seen)) }
    {
        let Cutting { mut done, last } = self;
        let Some(last) = last else {
            return Ok(done);
        };
        done.push(last.into_attempt())?;
        Ok(done)
    }
}
