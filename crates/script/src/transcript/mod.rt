// What a statement is answered, and its text, as the transcript has it behind the line's number.
pub mod answer;
pub mod collected;
pub mod not_understood;
pub mod range;
pub mod refusal;
pub mod reply;
pub mod rows;
pub mod stored;
pub mod view;
