//! Names, values, operations, events, commands, limits and encodings of an executor of OCF resource agents.
#![tactic(auto)]

mod action;
mod agent;
mod command;
mod encoded;
mod event;
mod expect;
mod key;
mod layout;
mod lemma_known;
mod limits;
mod names;
mod notice;
mod numbers;
mod operation;
mod orphan;
mod outcome;
mod param_name;
mod params;
mod part;
mod rsc_id;
mod snapshot_sync;
mod values;

pub use action::{Action, Check, Level, Task};
pub use agent::{AgentType, Provider};
pub use command::{Command, CommandOf, Question, Request, RequestOf};
pub use event::{Change, Event, EventOf, Registration, Step};
pub use expect::Expect;
pub use key::OpKey;
pub use layout::Layout;
pub use limits::{
    BARE_HEAD, BARE_STATE, BODY_LIMIT, CREATED_LEN, DEFAULT_TIMEOUT, ENDED_KEPT, ENDED_LEN,
    EVENT_FRAME, EVENT_LIMIT, HEAD_LEN, KEY_LIMIT, LINE_LIMIT, METADATA_LIMIT, MONITOR_LEN,
    NAME_LIMIT, NUM_MAX, OPERATION_LEN, ORPHANS_LIMIT, PARAMS_LIMIT, PART_LIMIT, QUEUE_LIMIT,
    RECURRING_LIMIT, RESERVE, RESOURCES_LIMIT, RUNNING_LEN, SLOT_FRAME, VALUE_LIMIT,
};
pub use names::BadName;
pub use notice::Notice;
pub use numbers::{CallId, Millis, Moment, RunId};
pub use operation::{Ended, Op, Recur, Running};
pub use orphan::Orphan;
pub use outcome::{MetaFault, Outcome, OutcomeRow, RunEnd, StartFault};
pub use param_name::ParamName;
pub use params::Params;
pub use part::Part;
pub use rsc_id::RscId;
pub use snapshot_sync::SnapshotSync;
pub use values::{ParamValue, ValueError};
