// A row of an answer's words: as many as there are, in the value itself.
use words::WordRow;

// An answer's words.
pub type Encoded = WordRow<18>;
