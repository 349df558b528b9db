//! The gates of the tests, as one type: the program is built once for each type of gate.
use crate::course::CourseGate;
use crate::meeting::MeetingGate;
use crate::order::OrderGate;
use crate::piped::PipedGate;
use crate::shown::ShownGate;
use vz_outside::Gate;

/// On which side of a step a gate is called.
#[derive(Clone, Copy, PartialEq, Eq)]
pub enum Side {
    Before,
    After,
}

/// A gate of a test.
#[derive(Drop)]
pub enum TestGate {
    Order(OrderGate),
    Meeting(MeetingGate),
    Piped(PipedGate),
    Course(CourseGate),
    Shown(ShownGate),
}

impl TestGate {
    /// Whether it saw what must be.
    pub fn is_content(&self) -> bool {
        match self {
            TestGate::Order(gate) => gate.is_told(),
            TestGate::Meeting(gate) => gate.all_met(),
            TestGate::Piped(gate) => gate.all_met(),
            TestGate::Course(gate) => gate.is_told(),
            TestGate::Shown(gate) => gate.all_met(),
        }
    }

    /// Takes a call before a write to a file.
    pub fn write(&self) {
        match self {
            TestGate::Order(_) => {}
            TestGate::Meeting(_) => {}
            TestGate::Piped(gate) => gate.write(),
            TestGate::Course(_) => {}
            TestGate::Shown(gate) => gate.write(),
        }
    }
}

impl Gate for TestGate {
    ghost told = { λ _ _. Unit {0} };

    fn before(&self, actor: u32, turn: u64) {
        match self {
            TestGate::Order(gate) => gate.call(actor, turn, Side::Before),
            TestGate::Meeting(gate) => gate.before(actor, turn),
            TestGate::Piped(gate) => gate.before(actor, turn),
            TestGate::Course(gate) => gate.call(actor, turn, Side::Before),
            TestGate::Shown(gate) => gate.before(actor, turn),
        }
    }

    fn after(&self, actor: u32, turn: u64) {
        match self {
            TestGate::Order(gate) => gate.call(actor, turn, Side::After),
            TestGate::Meeting(_) => {}
            TestGate::Piped(gate) => gate.after(actor),
            TestGate::Course(gate) => gate.call(actor, turn, Side::After),
            TestGate::Shown(gate) => gate.after(actor, turn),
        }
    }
}
