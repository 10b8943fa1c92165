ghost use Rattle.keys.specs.Examples.{Examples};

// The worked values follow from the definitions.
pub fn examples_hold()
    ensures { Examples }
{}
