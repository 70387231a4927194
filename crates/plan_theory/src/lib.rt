// Theory of plans: their darts and inner faces, the headings that labels give, and what a placement draws. It knows no sheet. There is no code here.
#![tactic(auto)]
