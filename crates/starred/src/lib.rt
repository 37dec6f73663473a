// The starred cases of 01 ('Edges and starred cases'): one table over the definitions that the contracts cite, settled by
// one fact. No function stands here.
#![tactic(auto)]
