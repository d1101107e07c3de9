// Mathematics that more than one crate cites: definitions in specs/, their laws in specs/Laws/. There is no code here.
#![tactic(auto)]
