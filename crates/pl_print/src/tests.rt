//! Texts that stand in the description of the language.

mod declarations;
mod expressions;
mod make;
mod propositions;
