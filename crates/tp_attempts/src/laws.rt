ghost use Rattle.std.specs.Prelude.{◌≡◌, ◌<◌, ◌^◌, ◌∷◌, [], ℕ, List, false, length, map};
ghost use Rattle.tp_attempts.specs.Attempts.{attempts_of};
ghost use Rattle.tp_attempts.specs.Segments.{Follow, first_of};
ghost use Rattle.tp_unit.specs.Shape.{IsShape, address_size, most_single};
ghost use Rattle.tp_unit.specs.Unit.{Meaning};
ghost use Rattle.tp_unit.specs.Writing.{frame_of};
ghost use Rattle.tp_unit.specs.declared.shape.Shape.{Shape};

/// A law on what `write_unit` writes and `attempts` reads; the function does nothing.
///
/// A message that no single frame carries, sent as a first frame and consecutive frames numbered from 1 on modulo 16, is
/// one attempt with just its bytes, which ends with the last frame.
pub fn segments_are_one_attempt()
    ensures { (shape : Shape) (message : List ℕ) (rest : List Meaning) → IsShape shape → length message < 2 ^ 32 → most_single shape < length message → Follow shape message rest → attempts_of (address_size shape) false (map (frame_of shape) (first_of shape message ∷ rest)) ≡ record { start = 0; len = length message; bytes = message; end = length rest } ∷ [] }
{}
