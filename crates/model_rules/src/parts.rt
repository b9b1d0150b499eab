// The parts of a model folder that the rules read.

ghost use Rattle.model_rules.specs.Few.{Few};

// What a function reads of a model folder: its five bodies, with the counts that row 3 allows.
#[derive(Drop)]
pub struct Bodies<'a> {
    pub terms: &'a [u8],
    pub variables: &'a [u8],
    pub expressions: &'a [u8],
    pub commands: &'a [u8],
    pub branches: &'a [u8],
    ghost few: { Few variables.now expressions.now commands.now branches.now },
}
