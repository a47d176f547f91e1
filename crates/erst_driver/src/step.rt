//! The steps of operations.

ghost use Rattle.std.specs.Prelude.{◌≡◌};
ghost use Rattle.erst_driver.specs.Operations.{clear_steps, without_input, read_steps, step, write_steps};

use erst_store::actions::{
    BEGIN_CLEAR_OPERATION, BEGIN_READ_OPERATION, BEGIN_WRITE_OPERATION, EXECUTE_OPERATION,
    SET_RECORD_IDENTIFIER, SET_RECORD_OFFSET,
};

/// One action of an operation, with its input.
#[derive(Clone, Copy)]
pub struct Step {
    pub action: u64,
    pub input: u64,
}

impl Step {
    // Returns an action with its input.
    pub(crate) fn new(action: u64, input: u64) -> Step
        ensures { result ≡ step action input }
    {
        Step { action, input }
    }

    // Returns an action that takes no input.
    pub(crate) fn without_input(action: u64) -> Step
        ensures { result ≡ without_input action }
    {
        Step::new(action, 0)
    }
}

// Returns the actions of a clear, up to its execution.
pub(crate) fn clear_steps(id: u64) -> [Step; 3]
    ensures { result ≡ clear_steps id }
{
    let begin = Step::without_input(BEGIN_CLEAR_OPERATION);
    let cleared = Step::new(SET_RECORD_IDENTIFIER, id);
    [begin, cleared, Step::without_input(EXECUTE_OPERATION)]
}

// Returns the actions of a read, up to its execution.
pub(crate) fn read_steps(id: u64) -> [Step; 4]
    ensures { result ≡ read_steps id }
{
    let begin = Step::without_input(BEGIN_READ_OPERATION);
    let offset = Step::new(SET_RECORD_OFFSET, 0);
    let read = Step::new(SET_RECORD_IDENTIFIER, id);
    [begin, offset, read, Step::without_input(EXECUTE_OPERATION)]
}

// Returns the actions of a write, up to its execution.
pub(crate) fn write_steps() -> [Step; 3]
    ensures { result ≡ write_steps }
{
    let begin = Step::without_input(BEGIN_WRITE_OPERATION);
    let offset = Step::new(SET_RECORD_OFFSET, 0);
    [begin, offset, Step::without_input(EXECUTE_OPERATION)]
}
