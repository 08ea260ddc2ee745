// Hinted proofs (LRAT without negative hints).

mod feeding;
mod laws;
mod mode;
mod parser;

pub use feeding::LratReceiver;
pub use laws::{
    comments_take_no_memory, fault_is_first, faults_stay, ids_are_read, pieces_join,
    pieces_say_the_same, sayings_go_on, sayings_stay_before_more, streams_say_lines,
};
pub use mode::{Hint, IdList, IdPart, LitList, MAX_HINTS, MAX_ID, Mode};
pub use parser::LratParser;
