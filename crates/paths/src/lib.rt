// What a send means, over any network of nodes and ports: permitted paths, their order, free paths, a pass and its scouts. The crate's specs/ hold the
// definitions that the search is held to, and its proofs/ the theorems about them. Its one type goes along a helix path.
#![tactic(auto)]

mod helix_path;

pub use helix_path::HelixPath;
