// The refusals of all calls, each with its number in the interface (docs/REFUSALS.md).
ghost use Rattle.std.specs.Prelude.{ℕ, ◌≡◌, ◌<◌};
ghost use Rattle.formats.specs.Refusals.{refusal_number};

// Why a call was refused.
#[derive(Clone, Copy, Debug, PartialEq, Eq)]
pub enum Refusal {
    // The session is in a state in which this call may not be made, or its record is broken.
    SessionState = 1,
    // The plan has fewer than 12 bytes.
    PlanShort = 2,
    // The plan's node count is not 1 to 65,535.
    NodeCount = 3,
    // The plan's offsets or its length are not exact.
    PlanLayout = 4,
    // The plan's kinds are not those of one tree in post-order.
    PlanTree = 5,
    // The rule table has fewer than 20 bytes, or the branch table fewer than 16.
    TableShort = 6,
    // The table's count of states is not 1 to 16, or its count of labels not 1 to 64.
    TableCounts = 7,
    // The table's offsets or its length are not exact.
    TableLayout = 8,
    // The table holds a state that it does not have, or a mark that is neither 0 nor 1.
    TableEntry = 9,
    // The plan has a label that the table does not have.
    PlanLabel = 10,
    // The node table, the state table or an output buffer is too short.
    BufferShort = 11,
    // The list has more than 64 changes, or not as many labels as nodes.
    ListLength = 12,
    // A node given is not one of the plan.
    Node = 13,
    // A label given is not one of the table.
    Label = 14,
    // The list has a node twice.
    NodeTwice = 15,
    // The lower node is not at or below the upper node.
    NotBelow = 16,
    // What is lent does not have the length that the counts of nodes, states and labels need.
    LentLength = 17,
    // What Start is lent is not as built, or a value that another call reads leads outside or does not rise.
    LentValue = 18,
    // The planner's file is malformed, or the plan is not that of a planner's file.
    PlannerFile = 19,
    // The planner's file has a label of 63 or more.
    PlannerLabel = 20,
    // The planner's file has more than 32,767 nodes, or an output buffer is too short for it.
    PlannerRoom = 21,
    // Of the two lists laid over one another more than 64 nodes would remain.
    LaidOver = 22,
    // The two rule tables do not have the same count of labels.
    LabelCounts = 23,
    // The product of the two rule tables' counts of states is above 16.
    StateProduct = 24,
    // A screen's number or the one to try first is above 7, or the run is not as long as eight records.
    Screen = 25,
    // There are more than 10^18 assignments of labels to the nodes listed.
    Assignments = 26,
    // The rule table has more than 4 states, too many for colours.
    ColourStates = 27,
}

impl Refusal {
    // The number that C meets.
    pub fn number(self) -> u8
        ensures { result ≡ refusal_number self }
    {
        self as u8
    }
}

// What has the number of a refusal: a refusal, or the number itself.
pub trait HasNumber: Copy {
    ghost number_in: { Self → ℕ };

    fn number_of(self) -> u8
        ensures { result ≡ number_in self };
}

impl HasNumber for Refusal {
    ghost number_in = { refusal_number };

    fn number_of(self) -> u8 {
        self.number()
    }
}

impl HasNumber for u8 {
    ghost number_in = { λ n. n };

    fn number_of(self) -> u8 {
        u8::from(self)
    }
}
