//! Comparisons of two forms.
mod decode;
mod packets;
mod pieces;
mod rows;
mod streams;
mod tokens;
