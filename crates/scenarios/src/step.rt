//! The steps of a case, each named by the first word of its line.

/// The action of a line. A line that expects values has them after `=`.
#[derive(Clone, Copy)]
pub enum CaseStep {
    /// It prepares a machine.
    Set(Preparation),
    /// It executes an action of a host.
    Do(Deed),
    /// It changes the drives.
    Move(Change),
    /// It runs the port or the executor, and expects the result.
    Run(Work),
    /// It expects a state of the port or the executor.
    Show(Sight),
    /// It expects a state of memory, or bytes of a saved port.
    Find(Place),
    /// It expects a state of drives.
    Open(Hold),
}

/// The parts of a machine.
#[derive(Clone, Copy)]
pub enum Preparation {
    New,
    Memory,
    Slice,
    Wander,
    Layout,
}

/// The actions of a host.
#[derive(Clone, Copy)]
pub enum Deed {
    Start,
    Write,
    Poke,
    Put,
    Fill,
    Response,
    Post,
    Text,
    Keep,
    Save,
    Alter,
}

/// The changes of drives and of an executor.
#[derive(Clone, Copy)]
pub enum Change {
    Unit,
    Remove,
    Insert,
    Restore,
    Type,
    Accept,
    Reset,
}

/// The runs of a port or an executor.
#[derive(Clone, Copy)]
pub enum Work {
    Ip,
    Turn,
    Turns,
    Execute,
    Next,
    Fetch,
    Random,
    Replay,
    Resume,
}

/// The visible state of a port or an executor.
#[derive(Clone, Copy)]
pub enum Sight {
    Sa,
    Interrupt,
    Phase,
    Cause,
    Looking,
    Load,
    Credits,
    Responses,
    Commands,
    Profile,
    Debug,
}

/// The visible state of memory, and the bytes of a saved port.
#[derive(Clone, Copy)]
pub enum Place {
    Words,
    Bytes,
    Filled,
    Cleared,
    Kept,
    End,
    Descriptor,
    State,
}

/// The visible state of drives.
#[derive(Clone, Copy)]
pub enum Hold {
    Mode,
    Drive,
    Shelf,
    Calls,
}

const STEPS: [(&str, CaseStep); 55] = [
    ("new", CaseStep::Set(Preparation::New)),
    ("memory", CaseStep::Set(Preparation::Memory)),
    ("slice", CaseStep::Set(Preparation::Slice)),
    ("wander", CaseStep::Set(Preparation::Wander)),
    ("layout", CaseStep::Set(Preparation::Layout)),
    ("start", CaseStep::Do(Deed::Start)),
    ("write", CaseStep::Do(Deed::Write)),
    ("poke", CaseStep::Do(Deed::Poke)),
    ("put", CaseStep::Do(Deed::Put)),
    ("fill", CaseStep::Do(Deed::Fill)),
    ("response", CaseStep::Do(Deed::Response)),
    ("post", CaseStep::Do(Deed::Post)),
    ("text", CaseStep::Do(Deed::Text)),
    ("keep", CaseStep::Do(Deed::Keep)),
    ("save", CaseStep::Do(Deed::Save)),
    ("alter", CaseStep::Do(Deed::Alter)),
    ("unit", CaseStep::Move(Change::Unit)),
    ("remove", CaseStep::Move(Change::Remove)),
    ("insert", CaseStep::Move(Change::Insert)),
    ("restore", CaseStep::Move(Change::Restore)),
    ("type", CaseStep::Move(Change::Type)),
    ("accept", CaseStep::Move(Change::Accept)),
    ("reset", CaseStep::Move(Change::Reset)),
    ("ip", CaseStep::Run(Work::Ip)),
    ("turn", CaseStep::Run(Work::Turn)),
    ("turns", CaseStep::Run(Work::Turns)),
    ("execute", CaseStep::Run(Work::Execute)),
    ("next", CaseStep::Run(Work::Next)),
    ("fetch", CaseStep::Run(Work::Fetch)),
    ("random", CaseStep::Run(Work::Random)),
    ("replay", CaseStep::Run(Work::Replay)),
    ("resume", CaseStep::Run(Work::Resume)),
    ("sa", CaseStep::Show(Sight::Sa)),
    ("interrupt", CaseStep::Show(Sight::Interrupt)),
    ("phase", CaseStep::Show(Sight::Phase)),
    ("cause", CaseStep::Show(Sight::Cause)),
    ("polling", CaseStep::Show(Sight::Looking)),
    ("load", CaseStep::Show(Sight::Load)),
    ("credits", CaseStep::Show(Sight::Credits)),
    ("responses", CaseStep::Show(Sight::Responses)),
    ("commands", CaseStep::Show(Sight::Commands)),
    ("profile", CaseStep::Show(Sight::Profile)),
    ("debug", CaseStep::Show(Sight::Debug)),
    ("words", CaseStep::Find(Place::Words)),
    ("bytes", CaseStep::Find(Place::Bytes)),
    ("filled", CaseStep::Find(Place::Filled)),
    ("cleared", CaseStep::Find(Place::Cleared)),
    ("kept", CaseStep::Find(Place::Kept)),
    ("end", CaseStep::Find(Place::End)),
    ("descriptor", CaseStep::Find(Place::Descriptor)),
    ("state", CaseStep::Find(Place::State)),
    ("mode", CaseStep::Open(Hold::Mode)),
    ("drive", CaseStep::Open(Hold::Drive)),
    ("shelf", CaseStep::Open(Hold::Shelf)),
    ("calls", CaseStep::Open(Hold::Calls)),
];

impl CaseStep {
    /// Returns the step that a word names, or None.
    pub fn of_word(word: &str) -> Option<CaseStep> {
        for &(name, step) in &STEPS {
            if name == word {
                return Some(step);
            }
        }
        None
    }
}
