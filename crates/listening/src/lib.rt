// Listening to a recording: the text of all that is heard in it.
#![tactic(auto)]

pub mod text;
