// An element numbered from another corner has the same verdict; numbered the other way round it is invalid.
#![tactic(auto)]
