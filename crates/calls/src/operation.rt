ghost use Rattle.std.specs.Prelude.{◌≡◌};
ghost use Rattle.calls.specs.Operations.{leaves};

// The six operations on a table from keys to values.
#[derive(Clone, Copy, Debug, PartialEq, Eq)]
pub enum Operation {
    Find,
    Insert,
    Write,
    Replace,
    Remove,
    Point,
}

impl Operation {
    // What a key has after the operation with `value`, where it had `before`. The answer of every
    // operation is `before` itself.
    pub fn leaves<V: Copy>(self, value: V, before: Option<V>) -> Option<V>
        ensures { result ≡ leaves self value before }
    {
        match self {
            Operation::Find | Operation::Point => before,
            Operation::Insert => before.or(Some(value)),
            Operation::Write | Operation::Replace => before.and(Some(value)),
            Operation::Remove => None,
        }
    }
}
