//! The law that draws are fair.
ghost use Rattle.draw_steps.specs.Laws.{DrawsAreFair};

/// Each member of a class has the same share of all choices, unless an unlabelled PowerSet is reached, and where bits lead to no
/// member though there is one, they end within a step.
pub fn draws_are_fair()
    ensures { DrawsAreFair }
{}

#[cfg(test)]
mod tests {
    use super::*;
    use std::test::Fail;

    #[test]
    fn the_law(_rt: HostRuntime) -> Result<(), Fail> {
        draws_are_fair();
        Ok(())
    }
}
