// No functions: what the definition of reading a sheet comes to, whoever reads it.
#![tactic(auto)]
