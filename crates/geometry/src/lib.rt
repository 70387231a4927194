// Geometry: theorems about points, walks and corners in the plane (specs/ and proofs/), with no plan in sight. There is no code here.
#![tactic(auto)]
