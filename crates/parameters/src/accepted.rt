// A parameter file that no line of is refused.
ghost use Rattle.std.specs.Prelude.{◌≡◌};
ghost use Rattle.parameters.specs.Reading.{refusal};
ghost use Rattle.parameters.specs.Parse.{trees};

// The lines of an accepted file that are yet to be read.
#[derive(Drop)]
pub(crate) struct Lines<'a> {
    pub(crate) rest: &'a [u8],
    ghost accepted: { refusal 0 (trees rest.now) ≡ 0 },
}
