// What the programs read and print: the words of a command; the lines, answers and readings of a text; numbers one a line.
//
//   words     numbers and roles among a command's words       specs/Words.antt
//   text      tide lines as text, judged and printed          specs/Text.antt
//   numbers   numbers as text, one a line                     specs/Numbers.antt
//   refused   a refusal, told on standard error
#![tactic(auto)]

mod numbers;
mod refused;
mod text;
mod words;

pub use numbers::{InputError, read_numbers};
pub use refused::complain_of;
pub use text::{print_answer, print_field, print_pooled, print_reading, print_signed, run};
pub use words::{decimal_up_to, number_word, role_word, word_count, word_into};
