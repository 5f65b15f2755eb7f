// What Unicode says of characters and of the bytes that stand for them, as far as a run of markers asks: the general categories P, S and Zs of version
// 16.0.0 as tables of ranges, and the character of well-formed UTF-8 that ends or begins at a place of a document.

#![tactic(auto)]

pub mod tables; // the ranges, made from Unicode's file
pub mod ranges; // whether a character lies in one of them
pub mod beside; // the characters beside a place
