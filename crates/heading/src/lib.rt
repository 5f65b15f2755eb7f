// The heading resolver: Text (13) goes round what each heading reads, and one Data pair takes the place of all that lies in it. The opening run of `#`
// and the closing one stay out.
//
//     `# a # #`  +11@0 +12@0 -12@1 +14@1 -14@2 +0@2 -0@3 +14@3 -14@4 +12@4 -12@5 +14@5 -14@6 +12@6 -12@7 -11@7
//     becomes    +11@0 +12@0 -12@1 +14@1 -14@2 +13@2 +0@2 -0@5 -13@5 +14@5 -14@6 +12@6 -12@7 -11@7
//
// A first pass judges the shape of each heading and counts the events of the result, a second writes them.

#![tactic(auto)]

pub mod seek; // the first and the last event of some sort
pub mod shape; // the shape rule
pub mod text; // the text rule
pub mod judge; // the first pass
pub mod write; // the second pass
pub mod resolve; // the public call
